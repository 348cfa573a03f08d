// The fields of a PCRep, by where its first objects stand, and every check of one.
ghost use Rattle.std.specs.Prelude.{◌≡◌, ◌≤◌, length, None, ℕ};
ghost use Rattle.std.specs.Option.{ForSome};
ghost use Rattle.pcep_laws.specs.Left.{Stands};
ghost use Rattle.pcep_reply_reader.specs.CheckedPcrep.{route_at, rest_verdict, Framed, IssueIs, CheckedPcrepIs};
ghost use Rattle.pcep_model.specs.Pcrep.{pcrep_fields};

use model::{Reason, Refusal, Verdict};
use pcep_ero::{address_count, ero_verdict};
use pcep_message::frame;
use pcep_message::objects::Objects;
use pcep_message::parts::{extent_of, list_in, rp_at};
use pcep_metrics::judge;
use pcep_model::{Extent, MessageKind, PcrepFields};
use refusal::refuse_if;

// Where the ERO that counts starts; none where a NO-PATH counts: of the two the one met first.
fn route_at(ero: Option<u16>, no_path: Option<u16>) -> Option<u16>
    ensures { result ≡ route_at ero no_path }
{
    match (ero, no_path) {
        (Some(at), Some(other)) if other <= at => None,
        _ => ero,
    }
}

// A NO-PATH's nature of issue, and C; 0 and false beside an ERO that counts.
#[derive(Clone, Copy)]
struct Issue {
    nature: u8,
    c: bool,
}

fn issue_of(message: &[u8], route: Option<u16>, no_path: Option<u16>) -> Issue
    requires { (length message.now ≤ 65535) × (route ≡ None → ForSome no_path (λ (at : ℕ). Stands message.now at 8)) }
    ensures { IssueIs message.now route no_path result }
{
    match (route, no_path) {
        (None, Some(start)) => {
            let at = start as usize;
            Issue {
                nature: message[at + 4],
                c: 128 <= message[at + 5],
            }
        }
        _ => Issue {
            nature: 0,
            c: false,
        },
    }
}

// The fields, by the first objects and the numbers of addresses and METRICs.
fn fields_of(message: &[u8], firsts: Objects, addresses: usize, metrics: usize) -> PcrepFields
    requires { Framed message.now firsts addresses metrics }
    ensures { result ≡ pcrep_fields message.now }
{
    let rp = rp_at(message, firsts.rp.unwrap() as usize);
    let route = route_at(firsts.ero, firsts.no_path);
    let issue = issue_of(message, route, firsts.no_path);
    PcrepFields {
        id: rp.id,
        flags: rp.flags,
        found: route.is_some(),
        nature: issue.nature,
        c: issue.c,
        addresses: addresses as u32,
        metrics: metrics as u32,
    }
}

// The form of the ERO's body, then 34 for the addresses and for the METRICs.
fn rest_verdict(body: &[u8], metrics: usize, address_room: usize, metric_room: usize) -> Verdict
    requires { length body.now ≤ 65535 }
    ensures { result ≡ rest_verdict body.now metrics address_room metric_room }
{
    ero_verdict(body)?;
    refuse_if(address_room < address_count(body), Reason::LittleRoom, 0)?;
    refuse_if(metric_room < metrics, Reason::LittleRoom, 0)
}

// A PCRep that passes the checks: its fields, and where its ERO's body stands.
#[derive(Clone, Copy)]
pub struct CheckedPcrep {
    pub fields: PcrepFields,
    pub route: Extent,
}

// All checks of a PCRep, 36 to 41, 21, the form of its ERO, 34. For every byte slice.
pub fn check(
    message: &[u8],
    address_room: usize,
    metric_room: usize,
) -> Result<CheckedPcrep, Refusal>
    ensures { CheckedPcrepIs message.now address_room metric_room result }
{
    let firsts = frame(MessageKind::Pcrep, message)?;
    let met = judge(message);
    refuse_if(met.wrong.is_some(), Reason::FloatOutOfRange, 1)?;
    let route = extent_of(message, route_at(firsts.ero, firsts.no_path), 4);
    let body = list_in(message, route);
    rest_verdict(body, met.count, address_room, metric_room)?;
    let fields = fields_of(message, firsts, address_count(body), met.count);
    Ok(CheckedPcrep { fields, route })
}
