// The form of a subobject, check by check in document 01's order, and the form of a whole list.
#![tactic(auto)]

ghost use Rattle.std.specs.Prelude.{◌≡◌, ◌+◌, ◌≤◌, ◌<◌, length, eqb, leb, not, ◌&&◌, true, ℕ};
ghost use Rattle.std.specs.List.{list_all};
ghost use Rattle.model.specs.Verdict.{Pass};
ghost use Rattle.model.specs.declared.ListKind.TheVariants.{Include, Exclude};
ghost use Rattle.model.specs.Subobject.{rounded_up, known, length_fits, type_at, plain_verdict, carried_if, subobject_verdict, form_from, form_verdict, top_wrong, prefix_wrong, field_wrong};
ghost use Rattle.list_subobject.specs.Items.{Readable};
ghost use Rattle.list_subobject.specs.Types.{number_of};
ghost use Rattle.list_form.specs.Checks.{head_wrong, IsFormCheck};

use list_subobject::types::{SubobjectType, is_exrs, type_of, type_there};
use list_subobject::walk::next_after;
use model::{ListKind, Reason, Verdict};
use profile_reserved::as_nobodys;
use refusal::refuse_at;
use wire::{u16_at, u32_at, wide};

// An area's length rounded up to 4.
pub fn rounded_up(n: u8) -> u32
    ensures { (result ≡ rounded_up n) × (result ≤ 260) }
{
    (n as u32 + 3) / 4 * 4
}

// The list knows the type: only an include list knows EXRS.
fn known(kind: ListKind, t: SubobjectType) -> bool
    ensures { result ≡ known kind (number_of t) }
{
    match kind {
        ListKind::Include => true,
        ListKind::Exclude => !matches!(t, SubobjectType::Exrs),
    }
}

// A subobject of a known type may be this long, by its area's length. An EXRS may be longer than its head.
fn length_fits(kind: ListKind, t: SubobjectType, area: u8, length: u8) -> bool
    requires { known kind (number_of t) ≡ true }
    ensures { result ≡ length_fits kind (number_of t) area length }
{
    match t {
        SubobjectType::Prefix | SubobjectType::WideSystem | SubobjectType::OspfArea => length == 8,
        SubobjectType::IsisArea => length as u32 == 4 + rounded_up(area),
        SubobjectType::System => length == 4,
        SubobjectType::Exrs => 4 <= length,
    }
}

// L set in an include list.
fn top_wrong(kind: ListKind, top: bool) -> bool
    ensures { result ≡ top_wrong kind top }
{
    match kind {
        ListKind::Include => top,
        ListKind::Exclude => false,
    }
}

// The bytes are all zero.
fn all_zero(bytes: &[u8]) -> bool
    ensures { result ≡ list_all (λ (x : ℕ). eqb x 0) bytes.now }
{
    bytes.iter().all(|byte| *byte == 0)
}

// The prefix length, and in an exclude list the attribute, of a type 1 subobject.
fn prefix_wrong(kind: ListKind, list: &[u8], at: usize) -> bool
    requires { at + 8 ≤ length list.now }
    ensures { result ≡ prefix_wrong kind list.now at }
{
    let bits = list[at + 6];
    match kind {
        ListKind::Include => bits != 32,
        ListKind::Exclude => 32 < bits || list[at + 7] != 1,
    }
}

// The length of an IS-IS area isn't 1 to 13.
fn area_wrong(t: SubobjectType, area: u8) -> bool
    ensures { result ≡ (eqb (number_of t) 7 && not (leb 1 area && leb area 13)) }
{
    t == SubobjectType::IsisArea && !(1 <= area && area <= 13)
}

// A field out of range, an AS that is nobody's among them, or padding that isn't zero, in a subobject of right length.
fn field_wrong(kind: ListKind, list: &[u8], at: usize) -> bool
    requires { Readable list.now at }
    ensures { result ≡ field_wrong kind list.now at }
{
    match type_there(list, at) {
        SubobjectType::Prefix => prefix_wrong(kind, list, at),
        SubobjectType::WideSystem => as_nobodys(u32_at(list, at + 4)),
        SubobjectType::IsisArea => {
            let padding = at + 4 + wide(list[at + 2]);
            let end = at + wide(list[at + 1]);
            !all_zero(&list[padding..end])
        }
        SubobjectType::System => as_nobodys(u16_at(list, at + 2) as u32),
        SubobjectType::OspfArea | SubobjectType::Exrs => false,
    }
}

// What is wrong with a subobject's first three bytes, in document 01's order.
fn head_wrong(kind: ListKind, first: u8, length: u8, area: u8) -> Option<Reason>
    ensures { result ≡ head_wrong kind first length area }
{
    let Some(t) = type_of(first) else {
        return Some(Reason::UnknownType);
    };
    if !known(kind, t) {
        return Some(Reason::UnknownType);
    }
    if top_wrong(kind, 128 <= first) {
        return Some(Reason::LooseBit);
    }
    if area_wrong(t, area) {
        return Some(Reason::WrongField);
    }
    if !length_fits(kind, t, area, length) {
        return Some(Reason::SubobjectLength);
    }
    None
}

// The form of the subobject at an offset, but for what an EXRS carries; what holds it ends at `end`.
fn plain_at(kind: ListKind, list: &[u8], at: usize, end: usize) -> Verdict
    requires { (at < end) × (end ≤ length list.now) × (length list.now ≤ 1024) }
    ensures { result ≡ plain_verdict kind list.now end at }
{
    let left = end - at;
    if left < 4 {
        return refuse_at(Reason::CutOff, at);
    }
    let n = list[at + 1];
    if let Some(reason) = head_wrong(kind, list[at], n, list[at + 2]) {
        return refuse_at(reason, at);
    }
    if left < wide(n) {
        return refuse_at(Reason::CutOff, at);
    }
    if field_wrong(kind, list, at) {
        return refuse_at(Reason::WrongField, at);
    }
    Ok(())
}

// The first subobject that a check of their form refuses, of those of a list from an offset up to an end, refuses them all.
fn each<F: Fn(usize) -> Verdict>(list: &[u8], from: usize, end: usize, check: F) -> Verdict
    requires inside { (from ≤ end) × (end ≤ length list.now) }
    requires callable { (at : ℕ) → at < end → F.pre check at }
    requires checks { (kind : ListKind) × IsFormCheck (F.post check) kind list.now end }
    ensures { (kind : ListKind) → IsFormCheck (F.post check) kind list.now end → result ≡ form_from kind list.now end from }
{
    let mut at = from;
    while at < end {
        check(at)?;
        at = next_after(list, at);
    }
    Ok(())
}

// The form of what an EXRS carries: subobjects as in an exclude list, from an offset up to its end.
fn inside_form(list: &[u8], from: usize, end: usize) -> Verdict
    requires { (from ≤ end) × (end ≤ length list.now) × (length list.now ≤ 1024) }
    ensures { result ≡ form_from Exclude list.now end from }
{
    each(
        list,
        from,
        end,
        |at| plain_at(ListKind::Exclude, list, at, end),
    )
}

// What an EXRS of right head carries: nothing inside is 26.
fn carried_at(list: &[u8], at: usize) -> Verdict
    requires { (plain_verdict Include list.now (length list.now) at ≡ Pass) × (length list.now ≤ 1024) }
    ensures { result ≡ carried_if (eqb (type_at list.now at) 33) list.now at }
{
    if !is_exrs(list[at]) {
        return Ok(());
    }
    let end = next_after(list, at);
    let inside = at + 4;
    if end == inside {
        return refuse_at(Reason::WrongField, at);
    }
    inside_form(list, inside, end)
}

// The whole form of the subobject at an offset.
fn form_at(kind: ListKind, list: &[u8], at: usize) -> Verdict
    requires { (at < length list.now) × (length list.now ≤ 1024) }
    ensures { result ≡ subobject_verdict kind list.now (length list.now) at }
{
    plain_at(kind, list, at, list.len())?;
    match kind {
        ListKind::Exclude => Ok(()),
        ListKind::Include => carried_at(list, at),
    }
}

// The first subobject whose form is wrong refuses the list.
pub fn form(kind: ListKind, list: &[u8]) -> Verdict
    requires { length list.now ≤ 1024 }
    ensures { result ≡ form_verdict kind list.now }
{
    each(list, 0, list.len(), |at| form_at(kind, list, at))
}
