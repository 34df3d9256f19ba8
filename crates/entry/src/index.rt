// An index of a table: for every fourth ordinal a place from which it can be looked for, so that at most 3 bundles are passed on the way.
ghost use Rattle.std.specs.Prelude.{◌≡◌, ◌⊎◌, ℕ, ◌*◌, ◌/◌, ◌≤◌, get_or};
ghost use Rattle.entry.specs.Internal.{Indexes, first_place};

// A place of the table where a bundle starts, and how many ordinals come before it.
#[derive(Clone, Copy)]
pub struct Place {
    pub at: u16,
    pub used: u16,
}

// The table's start.
pub const START: Place = Place { at: 0, used: 0 };

// Every so many ordinals there is an element.
const STEP: u32 = 4;

// The element for an ordinal before which so many others come. Where the index is too short, it is the table's start.
pub fn nearest(index: &[Place], before: u32) -> Place
    ensures { result ≡ get_or index.now (before / 4) first_place }
{
    index
        .get((before / STEP) as usize)
        .copied()
        .unwrap_or(START)
}

// Fills an index, from head to head. Each bundle's place goes to the elements of the ordinals that it covers. What an unsound table
// gives means nothing.
pub fn fill(table: &[u8], index: &mut [Place])
    requires { Indexes table.now index.old }
    ensures { Indexes table.now index.new }
{
    let mut at = 0;
    let mut used = 0;
    while at < 65536 {
        let head = bundle::head_at(table, at);
        let count = head.count;
        if count == 0 || 65535 - used < count {
            return;
        }
        let end = used + count;
        let place = Place {
            at: at as u16,
            used: used as u16,
        };
        put(index, first(used), first(end), place);
        at = at + 2 + bundle::size_of(head);
        used = end;
    }
}

// The first element with at least so many ordinals before it.
fn first(used: u32) -> usize
    requires { used ≤ 65535 }
    ensures behind { used ≤ 4 * result }
    ensures low { result ≤ 16384 }
{
    used.div_ceil(STEP) as usize
}

// Puts a place into the elements from `start` up to `end`, as many as there are.
fn put(index: &mut [Place], start: usize, end: usize, place: Place)
    ensures { (k : ℕ) → (get_or index.new k first_place ≡ get_or index.old k first_place) ⊎ ((get_or index.new k first_place ≡ place) × (start ≤ k)) }
{
    let end = end.min(index.len());
    if start < end {
        index[start..end].fill(place);
    }
}
