// Tree, first and next through a PCReq, with the profile and the ingress domain beside it: 36 to 40, then what the call answers on the lists and
// numbers that the message carries.
#![tactic(auto)]

ghost use Rattle.std.specs.Prelude.{length};
ghost use Rattle.pcep_model.specs.Pcreq.{pcreq_tree, pcreq_first, pcreq_next};
ghost use Rattle.buffers.specs.Capacity.{least4};
ghost use Rattle.tree_fields.specs.TreeResult.{TreeIn};
ghost use Rattle.pcep_request_calls.specs.Through.{PathIn};

use model::{BuiltTree, DomainIndex, PathAnswer, Refusal};
use path_calls::{first, next};
use pcep_message::parts::list_in;
use pcep_request_reader::carried::carried_by;
use tree_fields::tree_numbers;

// The tree's fields in four lent buffers. On a refusal they keep what they held.
pub fn pcreq_tree(
    profile: &[u8],
    ingress: DomainIndex,
    message: &[u8],
    level: &mut [u32],
    address: &mut [u32],
    reachable: &mut [u8],
    cost: &mut [u32],
) -> Result<BuiltTree, Refusal>
    ensures { TreeIn (pcreq_tree profile.now ingress.0 message.now (least4 level.old address.old reachable.old cost.old)) level.old address.old reachable.old cost.old result level.new address.new reachable.new cost.new }
{
    let request = carried_by(ingress, message)?;
    let include = list_in(message, request.include);
    let exclude = list_in(message, request.exclude);
    tree_numbers(
        profile,
        request.asked,
        include,
        exclude,
        level,
        address,
        reachable,
        cost,
    )
}

// The first of the shortest paths, or why there is none.
pub fn pcreq_first(
    profile: &[u8],
    ingress: DomainIndex,
    message: &[u8],
    path: &mut [u32],
) -> Result<PathAnswer, Refusal>
    ensures { PathIn (pcreq_first profile.now ingress.0 message.now (length path.old)) path.old result path.new }
{
    let request = carried_by(ingress, message)?;
    let include = list_in(message, request.include);
    let exclude = list_in(message, request.exclude);
    first(profile, request.asked, include, exclude, path)
}

// The next of the shortest paths after a given list, which need not be a path.
pub fn pcreq_next(
    profile: &[u8],
    ingress: DomainIndex,
    message: &[u8],
    given: &[u32],
    path: &mut [u32],
) -> Result<PathAnswer, Refusal>
    ensures { PathIn (pcreq_next profile.now ingress.0 message.now given.now (length path.old)) path.old result path.new }
{
    let request = carried_by(ingress, message)?;
    let include = list_in(message, request.include);
    let exclude = list_in(message, request.exclude);
    next(profile, request.asked, include, exclude, given, path)
}
