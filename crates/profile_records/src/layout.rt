// What a version of the format sets: its number, the size of a hop record, the places in it of the cost that counts and of the other
// cost (in a record of one cost the same place), the largest cost and the most hops.
ghost use Rattle.std.specs.Prelude.{◌≡◌};
ghost use Rattle.model.specs.Profile.{layout_in};
ghost use Rattle.profile_records.specs.Layout.{layout_of};

#[derive(Clone, Copy)]
pub struct Layout {
    pub version: u16,
    pub hop_size: usize,
    pub cost_at: usize,
    pub other_at: usize,
    pub most_cost: u32,
    pub most_hops: u16,
}

// The layout that a profile's own bytes say.
pub fn layout_in(s: &[u8]) -> Layout
    ensures { layout_of result ≡ layout_in s.now }
{
    Layout {
        version: 1,
        hop_size: 20,
        cost_at: 12,
        other_at: 12,
        most_cost: 16777215,
        most_hops: 3000,
    }
}
