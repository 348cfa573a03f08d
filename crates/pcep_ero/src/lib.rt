// The body of an ERO: one IPv4 subobject after the other, each of 8 bytes. Their form, how many there are, and their addresses.
#![tactic(auto)]

ghost use Rattle.std.specs.Prelude.{◌≡◌, ◌+◌, ◌≤◌, ◌<◌, length, true};
ghost use Rattle.model.specs.Verdict.{Pass};
ghost use Rattle.model.specs.Lists.{over};
ghost use Rattle.pcep_model.specs.Pcrep.{step_verdict, ero_verdict, addresses_in};
ghost use Rattle.pcep_ero.specs.Left.{LeftDecides};

use model::{Reason, Verdict};
use refusal::refuse;
use wire::u32_at;

// The form of the subobject at an offset, in document 01's order; any type other than 1 is 24.
fn step_verdict(body: &[u8], at: usize) -> Verdict
    requires { (at < length body.now) × (length body.now ≤ 65535) }
    ensures { result ≡ step_verdict body.now at }
{
    let left = body.len() - at;
    if left < 4 {
        return refuse(Reason::CutOff, at as u32);
    }
    let first = body[at];
    if first % 128 != 1 {
        return refuse(Reason::UnknownType, at as u32);
    }
    if 128 <= first {
        return refuse(Reason::LooseBit, at as u32);
    }
    if body[at + 1] != 8 {
        return refuse(Reason::SubobjectLength, at as u32);
    }
    if left < 8 {
        return refuse(Reason::CutOff, at as u32);
    }
    if body[at + 6] != 32 {
        return refuse(Reason::WrongField, at as u32);
    }
    Ok(())
}

// A right subobject, told by three looks where its 8 bytes are there. (One that isn't told so is looked at again.)
fn step_right(body: &[u8], at: usize) -> bool
    requires { at + 8 ≤ length body.now }
    ensures { result ≡ true → step_verdict body.now at ≡ Pass }
{
    body[at] == 1 && body[at + 1] == 8 && body[at + 6] == 32
}

// How far the subobjects are right: what is left from there on decides.
fn right_until(body: &[u8]) -> usize
    requires { length body.now ≤ 65535 }
    ensures { LeftDecides body.now result }
{
    let mut at: usize = 0;
    while 8 <= body.len() - at {
        if step_right(body, at) {
            at += 8;
        } else {
            return at;
        }
    }
    at
}

// The first subobject whose form is wrong refuses the body. A right one has 8 bytes.
pub fn ero_verdict(body: &[u8]) -> Verdict
    requires { length body.now ≤ 65535 }
    ensures { result ≡ ero_verdict body.now }
{
    let mut at = right_until(body);
    while at < body.len() {
        step_verdict(body, at)?;
        at += 8;
    }
    Ok(())
}

// How many addresses a body of right form has.
pub fn address_count(body: &[u8]) -> usize
    requires { ero_verdict body.now ≡ Pass }
    ensures { result ≡ length (addresses_in body.now) }
{
    body.len() / 8
}

// The addresses of a body of right form, written over the start of a buffer that has room for them.
pub fn put_addresses(body: &[u8], out: &mut [u32])
    requires { (ero_verdict body.now ≡ Pass) × (length body.now ≤ 65535) × (length (addresses_in body.now) ≤ length out.old) }
    ensures { out.new ≡ over (addresses_in body.now) out.old }
{
    for i in 0..address_count(body) {
        out[i] = u32_at(body, 8 * i + 2);
    }
}
