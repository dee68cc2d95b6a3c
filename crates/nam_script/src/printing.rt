//! The text of a script.

ghost use Rattle.std.specs.Prelude.{◌≡◌, ◌++◌, ◌≤◌, codes, OnOk, IfOk, string_bytes};
ghost use Rattle.std.specs.List.{flat_map};
ghost use Rattle.nam_script.specs.Lines.{form_word, switch_word, sign_text};
ghost use Rattle.nam_script.specs.Spelling.{text_of, opening_lines, store_lines};
ghost use Rattle.nam_script.specs.Text.{table_text, row_text, op_text, txn_text, stint_start, room_after, stint_text};
ghost use Rattle.nam_script.specs.Text.{stints_text, turns_text, script_text, IsSpelt};

use crate::script::{Script, ScriptTxn, Stint, Turns};
use nam_catalog::{Form, Shape, Table, name_at};
use nam_text::push_words;
use si_model::{Op, Policy, Row};
use std::alloc::{AllocError, Global};
use std::fmt::Write;

fn form_word(form: Form) -> &'static str
    ensures { result.now ≡ form_word form }
{
    match form {
        Form::Narrow => "narrow",
        Form::Wide => "wide",
        Form::Held => "held",
    }
}

fn switch_word(on: bool) -> &'static str
    ensures { result.now ≡ switch_word on }
{
    if on { "on" } else { "off" }
}

fn sign(up: bool) -> &'static str
    ensures { result.now ≡ sign_text up }
{
    if up { "+" } else { "-" }
}

#[tactic(auto, unfolding(crate::specs::Lines::spelt_line))]
fn push_opening(out: &mut String, shape: &Shape, policy: Policy) -> Result<(), AllocError>
    ensures { OnOk result (string_bytes out.new ≡ string_bytes out.old ++ text_of (opening_lines shape.now policy)) }
{
    write!(out, "namdb 1\nheader {}\n", form_word(shape.form))?;
    write!(out, "workers {}\ntries {}\n", shape.workers, policy.tries)?;
    Ok(())
}

#[tactic(auto, unfolding(crate::specs::Lines::spelt_line))]
fn push_store(out: &mut String, shape: &Shape, policy: Policy) -> Result<(), AllocError>
    ensures { OnOk result (string_bytes out.new ≡ string_bytes out.old ++ text_of (store_lines shape.now policy)) }
{
    let tidy = switch_word(policy.tidy);
    let Shape {
        start,
        buckets,
        cells,
        ..
    } = shape;
    write!(
        out,
        "tidy {tidy}\nstart {start}\noverflow {buckets} {cells}\n"
    )?;
    Ok(())
}

#[tactic(auto, unfolding(crate::specs::Lines::spelt_line))]
fn push_table(out: &mut String, table: &Table) -> Result<(), AllocError>
    ensures { OnOk result (string_bytes out.new ≡ string_bytes out.old ++ table_text table.now) }
{
    let name = table.name.as_str();
    let Table {
        width,
        capacity,
        ring,
        ..
    } = table;
    write!(
        out,
        "table {name} width {width} capacity {capacity} ring {ring}\n"
    )?;
    Ok(())
}

#[tactic(auto, unfolding(crate::specs::Lines::spelt_line))]
fn push_row(out: &mut String, tables: &[Table], row: &Row) -> Result<(), AllocError>
    ensures { OnOk result (string_bytes out.new ≡ string_bytes out.old ++ row_text tables.now row.now) }
{
    write!(out, "row {} {}", name_at(tables, row.table), row.key)?;
    push_words(out, row.value.as_slice())?;
    write!(out, "\n")?;
    Ok(())
}

#[tactic(auto, unfolding(crate::specs::Lines::spelt_line))]
fn push_op(out: &mut String, tables: &[Table], op: &Op) -> Result<(), AllocError>
    ensures { OnOk result (string_bytes out.new ≡ string_bytes out.old ++ op_text tables.now op.now) }
{
    match op {
        Op::Get { table, key } => write!(out, "get {} {key}\n", name_at(tables, *table))?,
        Op::Put { table, key, value } => {
            write!(out, "put {} {key}", name_at(tables, *table))?;
            push_words(out, value.as_slice())?;
            write!(out, "\n")?;
        }
        Op::Add {
            table,
            key,
            field,
            up,
            by,
        } => {
            write!(out, "add {} {key} {field} ", name_at(tables, *table))?;
            write!(out, "{}{by}\n", sign(*up))?;
        }
        Op::Del { table, key } => write!(out, "del {} {key}\n", name_at(tables, *table))?,
        Op::Need {
            table,
            key,
            field,
            least,
        } => write!(
            out,
            "need {} {key} {field} {least}\n",
            name_at(tables, *table)
        )?,
        Op::Guard { table, key } => write!(out, "guard {} {key}\n", name_at(tables, *table))?,
        Op::Scan { table, low, high } => {
            write!(out, "scan {} {low} {high}\n", name_at(tables, *table))?
        }
    }
    Ok(())
}

#[tactic(auto, unfolding(crate::specs::Lines::spelt_line))]
fn push_txn(out: &mut String, tables: &[Table], txn: &ScriptTxn) -> Result<(), AllocError>
    ensures { OnOk result (string_bytes out.new ≡ string_bytes out.old ++ txn_text tables.now txn.now) }
{
    write!(out, "txn {}\n", txn.worker)?;
    for op in txn.ops.as_slice() {
        push_op(out, tables, op)?;
    }
    write!(out, "end\n")?;
    Ok(())
}

fn push_tables(out: &mut String, tables: &[Table]) -> Result<(), AllocError>
    ensures { OnOk result (string_bytes out.new ≡ string_bytes out.old ++ flat_map table_text tables.now) }
{
    for table in tables {
        push_table(out, table)?;
    }
    Ok(())
}

fn push_rows(out: &mut String, tables: &[Table], rows: &[Row]) -> Result<(), AllocError>
    ensures { OnOk result (string_bytes out.new ≡ string_bytes out.old ++ flat_map (row_text tables.now) rows.now) }
{
    for row in rows {
        push_row(out, tables, row)?;
    }
    Ok(())
}

fn push_txns(out: &mut String, tables: &[Table], txns: &[ScriptTxn]) -> Result<(), AllocError>
    ensures { OnOk result (string_bytes out.new ≡ string_bytes out.old ++ flat_map (txn_text tables.now) txns.now) }
{
    for txn in txns {
        push_txn(out, tables, txn)?;
    }
    Ok(())
}

/// Appends a stint to a line with room for so many more, or to the next line, and gives the room that is left.
fn push_stint(out: &mut String, room: u32, stint: Stint) -> Result<u32, AllocError>
    requires { room ≤ 64 }
    ensures text { OnOk result (string_bytes out.new ≡ string_bytes out.old ++ stint_start room ++ stint_text stint) }
    ensures room { IfOk result (λ left. left ≡ room_after room) }
{
    let Stint { worker, steps } = stint;
    if room == 0 {
        write!(out, "\nturns {worker}*{steps}")?;
        Ok(63)
    } else {
        write!(out, " {worker}*{steps}")?;
        Ok(room - 1)
    }
}

/// Appends lines of 64 stints each, as far as there are as many.
fn push_stints(out: &mut String, stints: &[Stint]) -> Result<(), AllocError>
    ensures { OnOk result (string_bytes out.new ≡ string_bytes out.old ++ codes "turns" ++ stints_text 64 stints.now) }
{
    write!(out, "turns")?;
    let mut room = 64;
    for stint in stints {
        room = push_stint(out, room, *stint)?;
    }
    write!(out, "\n")?;
    Ok(())
}

#[tactic(auto, unfolding(crate::specs::Lines::spelt_line))]
fn push_turns(out: &mut String, turns: &Turns) -> Result<(), AllocError>
    ensures { OnOk result (string_bytes out.new ≡ string_bytes out.old ++ turns_text turns.now) }
{
    match turns {
        Turns::List(stints) => {
            if !stints.is_empty() {
                push_stints(out, stints.as_slice())?;
            }
            Ok(())
        }
        Turns::Seed { seed, picks } => {
            write!(out, "seed {seed} {picks}\n")?;
            Ok(())
        }
    }
}

/// The text of a script: its one spelling. Of any script there is one, and want of memory is the only error.
#[tactic(auto, using(crate::proofs::Printed::printed))]
pub fn print(alloc: Global, script: &Script) -> Result<Vec<u8>, AllocError>
    // The one text of the script.
    ensures exact { IfOk result (λ v. v.items ≡ script_text script.now) }
    // It spells the script, so that one within the limits is read from it again.
    ensures spelt { IfOk result (λ v. IsSpelt script.now v.items) }
{
    let mut out = String::new(alloc);
    let tables = script.shape.tables.as_slice();
    push_opening(&mut out, &script.shape, script.policy)?;
    push_store(&mut out, &script.shape, script.policy)?;
    push_tables(&mut out, tables)?;
    push_rows(&mut out, tables, script.rows.as_slice())?;
    push_txns(&mut out, tables, script.txns.as_slice())?;
    push_turns(&mut out, &script.turns)?;
    Ok(out.into_bytes())
}
