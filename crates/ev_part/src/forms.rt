// The operands of each item.
#![tactic(auto, unfolding(crate::proofs::Opening::opening))]

ghost use Rattle.std.specs.Prelude.{◌≡◌, Bool, map};
ghost use Rattle.ev_asm.specs.Assembly.{Places};
ghost use Rattle.ev_line.specs.Forms.{read_forms};
ghost use Rattle.ev_part.specs.ItemForms.{item_forms};
ghost use Rattle.ev_part.specs.declared.words.ItemWord.TheVariants as Word;

use crate::line::BodyLine;
use crate::operands::text_label;
use ev_body::Item;
use ev_isa::{AluOp, Cond};
use ev_line::{Cause, label, local, number, register, sent_key};
use ev_text::{Labels, four, none, one, two};

/// `set d N`
pub fn set(operands: &[&[u8]]) -> Result<BodyLine, Cause>
    ensures { (text : Places) (is_main : Bool)
        → result ≡ read_forms (item_forms text is_main Word.Set) (map (λ t. t.now) operands.now) }
{
    let (d, n) = two(operands)?;
    let d = local(d)?;
    let n = number(n)?;
    Ok(BodyLine::Does(Item::Set(d, n)))
}

/// `copy d s`
pub fn copy(operands: &[&[u8]]) -> Result<BodyLine, Cause>
    ensures { (text : Places) (is_main : Bool)
        → result ≡ read_forms (item_forms text is_main Word.Copy) (map (λ t. t.now) operands.now) }
{
    let (d, s) = two(operands)?;
    let d = local(d)?;
    let s = local(s)?;
    Ok(BodyLine::Does(Item::Copy(d, s)))
}

/// Arithmetic, as `add d s`
pub fn arithmetic(operation: AluOp, operands: &[&[u8]]) -> Result<BodyLine, Cause>
    ensures { (text : Places) (is_main : Bool)
        → result ≡ read_forms (item_forms text is_main (Word.Alu operation))
        (map (λ t. t.now) operands.now) }
{
    let (d, s) = two(operands)?;
    let d = local(d)?;
    let s = local(s)?;
    Ok(BodyLine::Does(Item::Alu(operation, d, s)))
}

/// A jump, as `jz L` or `goto L`
pub fn jump(condition: Option<Cond>, operands: &[&[u8]]) -> Result<BodyLine, Cause>
    ensures { (text : Places) (is_main : Bool)
        → result ≡ read_forms (item_forms text is_main (Word.Jump condition))
        (map (λ t. t.now) operands.now) }
{
    Ok(BodyLine::Jumps(condition, label(one(operands)?)?))
}

/// `log s`
pub fn log(operands: &[&[u8]]) -> Result<BodyLine, Cause>
    ensures { (text : Places) (is_main : Bool)
        → result ≡ read_forms (item_forms text is_main Word.Log) (map (λ t. t.now) operands.now) }
{
    let s = local(one(operands)?)?;
    Ok(BodyLine::Does(Item::Log(s)))
}

/// `cpu d`
pub fn cpu(operands: &[&[u8]]) -> Result<BodyLine, Cause>
    ensures { (text : Places) (is_main : Bool)
        → result ≡ read_forms (item_forms text is_main Word.Cpu) (map (λ t. t.now) operands.now) }
{
    let d = local(one(operands)?)?;
    Ok(BodyLine::Does(Item::Cpu(d)))
}

/// `slot d K`
pub fn slot(operands: &[&[u8]]) -> Result<BodyLine, Cause>
    ensures { (text : Places) (is_main : Bool)
        → result ≡ read_forms (item_forms text is_main Word.Slot) (map (λ t. t.now) operands.now) }
{
    let (d, k) = two(operands)?;
    let d = local(d)?;
    let k = number(k)?;
    Ok(BodyLine::Does(Item::Slot(d, k)))
}

/// `put K s`
pub fn put(operands: &[&[u8]]) -> Result<BodyLine, Cause>
    ensures { (text : Places) (is_main : Bool)
        → result ≡ read_forms (item_forms text is_main Word.Put) (map (λ t. t.now) operands.now) }
{
    let (k, s) = two(operands)?;
    let k = number(k)?;
    let s = local(s)?;
    Ok(BodyLine::Does(Item::Put(k, s)))
}

/// `cell d K`
pub fn cell(operands: &[&[u8]]) -> Result<BodyLine, Cause>
    ensures { (text : Places) (is_main : Bool)
        → result ≡ read_forms (item_forms text is_main Word.Cell) (map (λ t. t.now) operands.now) }
{
    let (d, k) = two(operands)?;
    let d = local(d)?;
    let k = number(k)?;
    Ok(BodyLine::Does(Item::Cell(d, k)))
}

/// `setcell K s`
pub fn set_cell(operands: &[&[u8]]) -> Result<BodyLine, Cause>
    ensures { (text : Places) (is_main : Bool)
        → result ≡ read_forms (item_forms text is_main Word.SetCell)
        (map (λ t. t.now) operands.now) }
{
    let (k, s) = two(operands)?;
    let k = number(k)?;
    let s = local(s)?;
    Ok(BodyLine::Does(Item::SetCell(k, s)))
}

/// `addcell K d`
pub fn add_cell(operands: &[&[u8]]) -> Result<BodyLine, Cause>
    ensures { (text : Places) (is_main : Bool)
        → result ≡ read_forms (item_forms text is_main Word.AddCell)
        (map (λ t. t.now) operands.now) }
{
    let (k, d) = two(operands)?;
    let k = number(k)?;
    let d = local(d)?;
    Ok(BodyLine::Does(Item::AddCell(k, d)))
}

/// `swapcell K d`
pub fn swap_cell(operands: &[&[u8]]) -> Result<BodyLine, Cause>
    ensures { (text : Places) (is_main : Bool)
        → result ≡ read_forms (item_forms text is_main Word.SwapCell)
        (map (λ t. t.now) operands.now) }
{
    let (k, d) = two(operands)?;
    let k = number(k)?;
    let d = local(d)?;
    Ok(BodyLine::Does(Item::SwapCell(k, d)))
}

/// `uget d s`
pub fn user_get(operands: &[&[u8]]) -> Result<BodyLine, Cause>
    ensures { (text : Places) (is_main : Bool)
        → result ≡ read_forms (item_forms text is_main Word.Uget) (map (λ t. t.now) operands.now) }
{
    let (d, s) = two(operands)?;
    let d = local(d)?;
    let s = local(s)?;
    Ok(BodyLine::Does(Item::Uget(d, s)))
}

/// `uput s t`
pub fn user_put(operands: &[&[u8]]) -> Result<BodyLine, Cause>
    ensures { (text : Places) (is_main : Bool)
        → result ≡ read_forms (item_forms text is_main Word.Uput) (map (λ t. t.now) operands.now) }
{
    let (s, t) = two(operands)?;
    let s = local(s)?;
    let t = local(t)?;
    Ok(BodyLine::Does(Item::Uput(s, t)))
}

/// `getreg d R`
pub fn get_register(operands: &[&[u8]]) -> Result<BodyLine, Cause>
    ensures { (text : Places) (is_main : Bool)
        → result ≡ read_forms (item_forms text is_main Word.GetReg)
        (map (λ t. t.now) operands.now) }
{
    let (d, r) = two(operands)?;
    let d = local(d)?;
    let r = register(r)?;
    Ok(BodyLine::Does(Item::GetReg(d, r)))
}

/// `setreg R s`
pub fn set_register(operands: &[&[u8]]) -> Result<BodyLine, Cause>
    ensures { (text : Places) (is_main : Bool)
        → result ≡ read_forms (item_forms text is_main Word.SetReg)
        (map (λ t. t.now) operands.now) }
{
    let (r, s) = two(operands)?;
    let r = register(r)?;
    let s = local(s)?;
    Ok(BodyLine::Does(Item::SetReg(r, s)))
}

/// `setrip L`, where the text has these labels
pub fn set_rip(text: &Labels, operands: &[&[u8]]) -> Result<BodyLine, Cause>
    ensures { (is_main : Bool)
        → result ≡ read_forms (item_forms text.now is_main Word.SetRip)
        (map (λ t. t.now) operands.now) }
{
    let address = text_label(text, one(operands)?)?;
    Ok(BodyLine::Does(Item::SetRip(address)))
}

/// `map s`
pub fn map(operands: &[&[u8]]) -> Result<BodyLine, Cause>
    ensures { (text : Places) (is_main : Bool)
        → result ≡ read_forms (item_forms text is_main Word.Map) (map (λ t. t.now) operands.now) }
{
    let s = local(one(operands)?)?;
    Ok(BodyLine::Does(Item::Map(s)))
}

/// `unmap s`
pub fn unmap(operands: &[&[u8]]) -> Result<BodyLine, Cause>
    ensures { (text : Places) (is_main : Bool)
        → result ≡ read_forms (item_forms text is_main Word.Unmap) (map (λ t. t.now) operands.now) }
{
    let s = local(one(operands)?)?;
    Ok(BodyLine::Does(Item::Unmap(s)))
}

/// `send P KEY`
pub fn send(operands: &[&[u8]]) -> Result<BodyLine, Cause>
    ensures { (text : Places) (is_main : Bool)
        → result ≡ read_forms (item_forms text is_main Word.Send) (map (λ t. t.now) operands.now) }
{
    let (p, key) = two(operands)?;
    let p = number(p)?;
    let key = sent_key(key)?;
    Ok(BodyLine::Does(Item::Send(p, key)))
}

/// `call K P F s`
pub fn call(operands: &[&[u8]]) -> Result<BodyLine, Cause>
    ensures { (text : Places) (is_main : Bool)
        → result ≡ read_forms (item_forms text is_main Word.Call) (map (λ t. t.now) operands.now) }
{
    let (site, to, func, s) = four(operands)?;
    let site = number(site)?;
    let to = number(to)?;
    let func = number(func)?;
    let s = local(s)?;
    Ok(BodyLine::Does(Item::Call { site, to, func, s }))
}

/// `kick P s`
pub fn kick(operands: &[&[u8]]) -> Result<BodyLine, Cause>
    ensures { (text : Places) (is_main : Bool)
        → result ≡ read_forms (item_forms text is_main Word.Kick) (map (λ t. t.now) operands.now) }
{
    let (p, s) = two(operands)?;
    let p = number(p)?;
    let s = local(s)?;
    Ok(BodyLine::Does(Item::Kick(p, s)))
}

/// `wait K`
pub fn wait(operands: &[&[u8]]) -> Result<BodyLine, Cause>
    ensures { (text : Places) (is_main : Bool)
        → result ≡ read_forms (item_forms text is_main Word.Wait) (map (λ t. t.now) operands.now) }
{
    let k = number(one(operands)?)?;
    Ok(BodyLine::Does(Item::Wait(k)))
}

/// An item without operands.
pub fn lone(item: Item, operands: &[&[u8]]) -> Result<BodyLine, Cause>
    ensures { (text : Places) (is_main : Bool)
        → result ≡ read_forms (item_forms text is_main (Word.Alone item))
        (map (λ t. t.now) operands.now) }
{
    none(operands)?;
    Ok(BodyLine::Does(item))
}

/// `ret`, which ends a main part
pub fn ret(is_main: bool, operands: &[&[u8]]) -> Result<BodyLine, Cause>
    ensures { (text : Places) → result ≡ read_forms (item_forms text is_main Word.Ret)
        (map (λ t. t.now) operands.now) }
{
    if !is_main {
        return Err(Cause::Word);
    }
    none(operands)?;
    Ok(BodyLine::Does(Item::Ret))
}

/// `finish`, which ends a function part
pub fn finish(is_main: bool, operands: &[&[u8]]) -> Result<BodyLine, Cause>
    ensures { (text : Places) → result ≡ read_forms (item_forms text is_main Word.Finish)
        (map (λ t. t.now) operands.now) }
{
    if is_main {
        return Err(Cause::Word);
    }
    none(operands)?;
    Ok(BodyLine::Does(Item::Finish))
}
