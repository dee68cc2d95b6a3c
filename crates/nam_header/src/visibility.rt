//! Which stamps a snapshot sees.

ghost use Rattle.std.specs.Prelude.{◌≡◌, ◌↔◌, IsTrue};
ghost use Rattle.nam_header.specs.Visible.{is_visible, IsVisible};

use si_model::{Snapshot, Stamp};

/// Whether the snapshot sees what was written under the stamp: its worker's entry has reached the number. The
/// loader's stamp is always seen.
pub fn visible(stamp: Stamp, seen: &Snapshot) -> bool
    ensures value { result ≡ is_visible stamp seen.now }
    ensures exact { IsTrue result ↔ IsVisible stamp seen.now }
{
    if stamp.thread == 0 {
        return stamp.number == 0;
    }
    match seen.as_slice().get(stamp.thread as usize - 1) {
        Some(entry) => stamp.number <= *entry,
        None => false,
    }
}
