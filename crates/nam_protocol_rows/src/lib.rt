//! Simulated runs of nam_protocol, computed: a commit that is stopped at each verb in turn, and random scripts.
#![tactic(auto)]
