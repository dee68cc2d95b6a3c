//! Takes lines one after another.

ghost use Rattle.std.specs.Prelude.{◌≡◌};
ghost use Rattle.nam_script.specs.Admit.{Takes, admit_text};
ghost use Rattle.nam_script.specs.Parse.{turns_of, whole_script};

use crate::draft::{Body, Draft};
use crate::refusal::{Kind, LineEnd};
use crate::script::{Script, Stint, Turns};
use crate::stage::Stage;
use lists::List;
use std::alloc::Global;

fn turns_of(stage: Stage, stints: List<Stint>, seed: u64, picks: u32) -> Turns
    ensures { result ≡ turns_of stage stints seed picks }
{
    if stage.is_at(Stage::Seed) {
        Turns::Seed { seed, picks }
    } else {
        Turns::List(stints)
    }
}

impl Draft {
    /// Takes the next line.
    #[inline(always)]
    #[tactic(auto, unfolding(crate::specs::Admit::admit_text))]
    pub fn take(&mut self, alloc: Global, text: &[u8]) -> Result<(), LineEnd>
        ensures { Takes result self.new (admit_text self.old text.now) }
    {
        match self.admit_line(alloc, text) {
            Some(taken) => taken,
            None => Err(LineEnd::Bad(Kind::Word)),
        }
    }

    /// The script of the lines so far.
    pub fn finish(self) -> Script
        ensures { result ≡ whole_script self }
    {
        let Draft {
            stage,
            shape,
            policy,
            body,
        } = self;
        let Body {
            rows,
            txns,
            stints,
            seed,
            picks,
            ..
        } = body;
        Script {
            shape,
            policy,
            rows: rows.into_list(),
            txns,
            turns: turns_of(stage, stints, seed, picks),
        }
    }
}
