//! A script from its text.

ghost use Rattle.std.specs.Prelude.{◌≡◌, ◌&&◌, ◌==◌, List, length, true, IfOk, Ok};
ghost use Rattle.std.specs.List.{AllByRecursion};
ghost use Rattle.nam_script.specs.Text.{IsSpelt};
ghost use Rattle.nam_script.specs.Limits.{IsScript};
ghost use Rattle.nam_script.specs.Stages.{can_end};
ghost use Rattle.nam_script.specs.Admit.{start};
ghost use Rattle.nam_script.specs.Parse.{Gives, GivesDraft, draft_of, whole_script, script_of, end_at};
ghost use Rattle.nam_script.specs.Spelling.{IsGood, admit_all, text_of};
ghost use Rattle.nam_script.specs.Line.{Line};
ghost use Rattle.nam_script.specs.declared.draft.Draft.{Draft};
ghost use Rattle.nam_script.specs.declared.script.Script.{Script};

use crate::draft::Draft;
use crate::refusal::{Kind, LineEnd, ParseEnd};
use crate::script::Script;
use crate::stage::Stage;
use nam_text::first_line;
use std::alloc::Global;

/// Nothing follows the last newline, and a script may end.
fn is_whole(rest: &[u8], stage: Stage) -> bool
    ensures { result ≡ (length rest.now == 0 && can_end stage) }
{
    rest.is_empty() && stage.can_end()
}

fn end_at(line: u32, end: LineEnd) -> ParseEnd
    ensures { result ≡ end_at line end }
{
    match end {
        LineEnd::Bad(kind) => ParseEnd::Bad { line, kind },
        LineEnd::Memory => ParseEnd::Memory,
    }
}

/// The script of the lines, or the first bad line and what is wrong with it.
fn draft_of(alloc: Global, text: &[u8]) -> Result<Draft, ParseEnd>
    ensures { GivesDraft result (draft_of text.now) }
{
    let mut draft = Draft::new(alloc);
    let mut rest = text;
    let mut line: u32 = 1;
    while let Some((first, more)) = first_line(rest) {
        if let Err(end) = draft.take(alloc, first) {
            return Err(end_at(line, end));
        }
        rest = more;
        line += 1;
    }
    if is_whole(rest, draft.stage) {
        Ok(draft)
    } else {
        Err(ParseEnd::Bad {
            line,
            kind: Kind::Cut,
        })
    }
}

fn script_of(alloc: Global, text: &[u8]) -> Result<Script, ParseEnd>
    ensures { Gives result (script_of text.now) }
{
    let draft = draft_of(alloc, text)?;
    Ok(draft.finish())
}

/// The script that a text spells.
///
/// # Errors
///
/// `Bad` names the first line that is no line of a script after the lines before it, and the first kind of fault that
/// it has; `Memory` is want of memory.
#[tactic(auto, using(crate::proofs::Whole::parse_laws))]
pub fn parse(alloc: Global, bytes: &[u8]) -> Result<Script, ParseEnd>
    // The script that the bytes spell, or the first bad line and the first of its kinds.
    ensures exact { Gives result (script_of bytes.now) }
    // What is read is spelt so.
    ensures found { IfOk result (λ s. IsSpelt s bytes.now) }
    // What is spelt so is read: lines that may come in this order, where a script may end.
    ensures only { (ls : List Line) (e : Draft) → AllByRecursion IsGood ls → admit_all start ls ≡ Ok e
        → can_end e.stage ≡ true → bytes.now ≡ text_of ls → Gives result (Ok (whole_script e)) }
    // The script keeps to all limits, and its names and numbers can be spelt.
    ensures limits { IfOk result IsScript }
    // Each such script is read from any bytes that spell it.
    ensures whole { (s : Script) → IsScript s → IsSpelt s bytes.now → Gives result (Ok s) }
{
    script_of(alloc, bytes)
}
