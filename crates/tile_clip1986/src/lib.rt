// The clip rule of 1986: the level P, and the counts raised by it in place.
#![tactic(auto)]

ghost use Rattle.std.specs.Prelude.{◌≡◌, map, ◌+◌, ◌-◌, ◌/◌, ◌≤◌, length};
ghost use Rattle.base_lists.specs.Lists.{total};
ghost use Rattle.tile_clip.specs.Clip.{excess};
ghost use Rattle.tile_clip1986.specs.Older.{level_of, raised, older, reaching, reach, OlderAsks, DescendAsks, Lowered, LiftAsks};

// What stands above a level, and how many bins reach it.
#[derive(Clone, Copy)]
struct Seen {
    over: u32,
    reached: u32,
}

// Both of a level, in one go over the bins.
#[tactic(auto, using(crate::proofs::Steps::looking))]
fn look(counts: &[u32], level: u32) -> Seen
    requires { (total counts.now ≤ 4194304) × (length counts.now ≤ 4096) }
    ensures { (result.over ≡ excess level counts.now) × (result.reached ≡ reach level counts.now) }
{
    let mut over: u32 = 0;
    let mut reached: u32 = 0;
    for count in counts {
        over += count.saturating_sub(level);
        reached += u32::from(level <= *count);
    }
    Seen { over, reached }
}

// A step down: what is missing at a level, over the bins that do not reach it, rounded up.
fn descend(level: u32, over: u64, room: u64, bins: u64, reached: u64) -> u32
    requires { DescendAsks level over room bins reached }
    ensures { result ≡ level - (over - room + (bins - reached) - 1) / (bins - reached) }
{
    let others = bins - reached;
    let step = (over - room).div_ceil(others);
    level - step as u32
}

// One step of the search. What stands above a level grows by at least the bins that reach it for each step down, and the room by all
// bins; so what is missing, over the other bins, is a step that passes no level over.
fn lower(counts: &[u32], limit: u32, level: u32) -> u32
    requires { OlderAsks limit counts.now × (level ≤ limit) }
    ensures { Lowered limit counts.now level result }
{
    let bins = counts.len() as u64;
    let here = look(counts, level);
    let over = here.over as u64;
    let room = bins * ((limit - level) as u64);
    if over <= room {
        level
    } else {
        descend(level, over, room, bins, here.reached as u64)
    }
}

// P, the largest whole number from 0 to C for which what stands above it is at most B x (C - P), looked for from C down.
fn level(counts: &[u32], limit: u32) -> u32
    requires { OlderAsks limit counts.now }
    ensures { result ≡ level_of limit counts.now }
{
    let mut p = limit;
    let mut q = lower(counts, limit, p);
    while q < p {
        p = q;
        q = lower(counts, limit, p);
    }
    p
}

// What a bin becomes with the level p.
fn becomes(count: u32, limit: u32, p: u32) -> u32
    requires { p ≤ limit }
    ensures { result ≡ raised limit p count }
{
    if count < p {
        count + (limit - p)
    } else {
        limit
    }
}

// Every bin raised; the new total is the answer.
fn lift(counts: &mut [u32], limit: u32, p: u32) -> u32
    requires { LiftAsks limit p counts.old }
    ensures { (counts.new ≡ map (raised limit p) counts.old) × (result ≡ total (map (raised limit p) counts.old)) }
{
    let mut sum: u32 = 0;
    for count in counts.iter_mut() {
        *count = becomes(*count, limit, p);
        sum += *count;
    }
    sum
}

// Clips the counts of one tile by the rule of 1986; the answer is what the mapping divides by, T.
pub fn raise(counts: &mut [u32], limit: u32) -> u32
    requires { OlderAsks limit counts.old }
    ensures { (counts.new ≡ older limit counts.old) × (result ≡ total (older limit counts.old)) }
{
    let p = level(counts, limit);
    lift(counts, limit, p)
}
