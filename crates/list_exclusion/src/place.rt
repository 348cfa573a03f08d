// What counts at one place of a path: the exclude list, and the EXRS of the domain there, which stand in a stretch of the include list.
ghost use Rattle.std.specs.Prelude.{◌≡◌, ◌≤◌};
ghost use Rattle.model.specs.Verdict.{Pass};
ghost use Rattle.model.specs.declared.ListKind.TheVariants.{Exclude};
ghost use Rattle.model.specs.Subobject.{form_verdict};
ghost use Rattle.model.specs.Exclusion.{some_desired, excluded_domain, excluded_node};
ghost use Rattle.laws.specs.Exrs.{Stretch};
ghost use Rattle.laws.specs.Lists.{lists_of};
ghost use Rattle.list_exclusion.specs.Place.{exclusions_there, all_there};

use crate::exrs::exrs_have;
use crate::{excludes_domain, excludes_node, some_desired};
use model::{Domain, NodeAddress, Round};

// The domain is taken away in the round.
pub fn excludes_domain_there(
    include: &[u8],
    exclude: &[u8],
    from: usize,
    to: usize,
    round: Round,
    d: Domain,
) -> bool
    requires { (form_verdict Exclude exclude.now ≡ Pass) × Stretch include.now from to × (d.length ≤ 13) }
    ensures { result ≡ excluded_domain (exclusions_there round (lists_of include.now exclude.now) from to) d }
{
    excludes_domain(exclude, round, d)
        || exrs_have(
            include,
            from,
            to,
            |inside| excludes_domain(inside, round, d),
        )
}

// The node is taken away in the round.
pub fn excludes_node_there(
    include: &[u8],
    exclude: &[u8],
    from: usize,
    to: usize,
    round: Round,
    node: NodeAddress,
) -> bool
    requires { (form_verdict Exclude exclude.now ≡ Pass) × Stretch include.now from to }
    ensures { result ≡ excluded_node (exclusions_there round (lists_of include.now exclude.now) from to) node.0 }
{
    excludes_node(exclude, round, node)
        || exrs_have(
            include,
            from,
            to,
            |inside| excludes_node(inside, round, node),
        )
}

// Some exclusion has X set, in the exclude list or in an EXRS of the stretch.
pub fn some_desired_there(include: &[u8], exclude: &[u8], from: usize, to: usize) -> bool
    requires { (form_verdict Exclude exclude.now ≡ Pass) × Stretch include.now from to }
    ensures { result ≡ some_desired (all_there (lists_of include.now exclude.now) from to) }
{
    some_desired(exclude) || exrs_have(include, from, to, |inside| some_desired(inside))
}
