// A PCEP message's objects in turn, 37 and 38, with where the first one of each known class starts.
ghost use Rattle.std.specs.Prelude.{◌≡◌, ◌≤◌, ◌<◌, ◌/◌, ◌%◌, eqb, length, Some};
ghost use Rattle.std.specs.Option.{option_or};
ghost use Rattle.pcep_laws.specs.Firsts.{placed};
ghost use Rattle.pcep_laws.specs.Table.{least_of};
ghost use Rattle.pcep_message.specs.Known.{fits_known};
ghost use Rattle.pcep_message.specs.Walked.{length_refused, ObjectIs, ObjectsAre, objects_met};

use model::{Reason, Refusal};
use pcep_model::MessageKind;
use wire::{u16_at, wide};

// The classes of the known objects.
const RP: u8 = 2;

const NO_PATH: u8 = 3;

const END_POINTS: u8 = 4;

const BANDWIDTH: u8 = 5;

const METRIC: u8 = 6;

const ERO: u8 = 7;

const IRO: u8 = 10;

const XRO: u8 = 17;

// The least length of an object of this class and type, where the message knows it. Each known object has a class of its own and type 1.
fn least_of(kind: MessageKind, class: u8, form: u8) -> Option<usize>
    ensures { result ≡ placed (least_of kind class form) }
{
    match kind {
        MessageKind::Pcreq => match (class, form) {
            (RP, 1) => Some(12),
            (END_POINTS, 1) => Some(12),
            (BANDWIDTH, 1) => Some(8),
            (METRIC, 1) => Some(12),
            (IRO, 1) => Some(4),
            (XRO, 1) => Some(8),
            _ => None,
        },
        MessageKind::Pcrep => match (class, form) {
            (RP, 1) => Some(12),
            (NO_PATH, 1) => Some(8),
            (METRIC, 1) => Some(12),
            (ERO, 1) => Some(4),
            _ => None,
        },
    }
}

// A known object of this class can be n bytes long. Those that nothing can make longer have their least length alone. That length is tried first, since most objects
// have it.
fn fits(class: u8, least: usize, n: usize) -> bool
    ensures { result ≡ fits_known class least n }
{
    n == least
        || match class {
            END_POINTS | BANDWIDTH | METRIC => false,
            _ => least < n,
        }
}

// A length under 4, not a multiple of 4, or past what is left of the message.
fn size_wrong(n: usize, left: usize) -> bool
    ensures { result ≡ length_refused n left }
{
    n < 4 || n % 4 != 0 || left < n
}

// P is set, by an object's second byte.
fn demanded(second: u8) -> bool
    ensures { result ≡ eqb (second / 2 % 2) 1 }
{
    second / 2 % 2 == 1
}

// An object that passes: its class, if it is known, and where the next one starts.
#[derive(Clone, Copy)]
struct Object {
    class: Option<u8>,
    next: usize,
}

// The object at an offset. Its length is judged before what it is, so that what it is leads straight to its answer, with no test twice: a message may have thousands of
// objects.
fn object_at(kind: MessageKind, message: &[u8], at: usize) -> Result<Object, Refusal>
    requires { (at < length message.now) × (length message.now ≤ 65535) }
    ensures { ObjectIs kind message.now at result }
{
    let left = message.len() - at;
    if left < 4 {
        return Err(Refusal::new(Reason::WrongObject, at as u32));
    }
    let class = message[at];
    let second = message[at + 1];
    let n = u16_at(message, at + 2) as usize;
    if size_wrong(n, left) {
        return Err(Refusal::new(Reason::WrongObject, at as u32));
    }
    let next = at + n;
    match least_of(kind, class, second / 16) {
        Some(least) => {
            if !fits(class, least, n) {
                return Err(Refusal::new(Reason::WrongObject, at as u32));
            }
            Ok(Object {
                class: Some(class),
                next,
            })
        }
        None => {
            if demanded(second) {
                return Err(Refusal::new(Reason::UnknownObject, at as u32));
            }
            Ok(Object { class: None, next })
        }
    }
}

// Where the first object of each class that is known in the message starts.
#[derive(Clone, Copy)]
pub struct Objects {
    pub rp: Option<u16>,
    pub no_path: Option<u16>,
    pub end_points: Option<u16>,
    pub bandwidth: Option<u16>,
    pub metric: Option<u16>,
    pub ero: Option<u16>,
    pub iro: Option<u16>,
    pub xro: Option<u16>,
}

// The first place met of a class: the one known so far, or where there is none this one. Where one is known nothing is stored, as a message may have thousands of
// objects of a class.
fn first_of(known: &mut Option<u16>, at: u16)
    ensures { known.new ≡ option_or known.old (Some at) }
{
    if known.is_none() {
        *known = Some(at);
    }
}

// The places met by class, by the objects' names.
fn objects_met(met: [Option<u16>; 18]) -> Objects
    requires { length met ≡ 18 }
    ensures { result ≡ objects_met met }
{
    Objects {
        rp: met[2],
        no_path: met[3],
        end_points: met[4],
        bandwidth: met[5],
        metric: met[6],
        ero: met[7],
        iro: met[10],
        xro: met[17],
    }
}

// The objects of a message, behind its header.
pub fn objects_in(kind: MessageKind, message: &[u8]) -> Result<Objects, Refusal>
    requires { (4 ≤ length message.now) × (length message.now ≤ 65535) }
    ensures { ObjectsAre kind message.now result }
{
    let mut met = [None; 18];
    let mut at: usize = 4;
    while at < message.len() {
        let object = object_at(kind, message, at)?;
        if let Some(class) = object.class {
            let i = wide(class);
            first_of(&mut met[i], at as u16);
        }
        at = object.next;
    }
    Ok(objects_met(met))
}
