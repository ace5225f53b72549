// The fronts of lent arrays, as many slots as are in use, lent on: to a line's call, and to the listing. The arrays of a trial, all as one.
#![tactic(auto)]

ghost use Rattle.std.specs.Prelude.{◌≡◌, take};
ghost use Rattle.rules.specs.Records.{tables_of};
ghost use Rattle.trial_lines.specs.Printing.{printed};
ghost use Rattle.trial_listing.specs.Listing.{listing_of};
ghost use Rattle.trial_fronts.specs.Fronts.{array_blocks, array_heads, Sized, tables_in, Cut, TellsFront};

use rules::BlockSlot;
use trial_answer::answer;
use trial_calls::Told;
use trial_lines::Line;
use trial_lines::page::Page;
use trial_listing::listing;

// Where the front of each array ends.
#[derive(Clone, Copy)]
struct Ends {
    hashes: usize,
    parents: usize,
    sequences: usize,
    counts: usize,
    flags: usize,
    tips: usize,
    tails: usize,
    missing: usize,
    requested: usize,
    arrivals: usize,
    connected: usize,
}

// The first n block slots and the first m head slots, as much of each array as there is.
fn cut(
    hashes: &[u8],
    parents: &[u32],
    sequences: &[u32],
    counts: &[u8],
    flags: &[u8],
    tips: &[u32],
    tails: &[u32],
    missing: &[u8],
    requested: &[u64],
    arrivals: &[u64],
    connected: &[u8],
    n: u32,
    m: u32,
) -> Ends
    ensures { Cut n m result (tables_of hashes.now parents.now sequences.now counts.now flags.now
        tips.now tails.now missing.now requested.now arrivals.now connected.now) }
{
    let blocks = n as usize;
    let heads = m as usize;
    Ends {
        hashes: (blocks * 32).min(hashes.len()),
        parents: blocks.min(parents.len()),
        sequences: blocks.min(sequences.len()),
        counts: blocks.min(counts.len()),
        flags: blocks.min(flags.len()),
        tips: heads.min(tips.len()),
        tails: heads.min(tails.len()),
        missing: (heads * 32).min(missing.len()),
        requested: heads.min(requested.len()),
        arrivals: heads.min(arrivals.len()),
        connected: heads.min(connected.len()),
    }
}

// As much of each array as there is.
pub fn answer_front(
    hashes: &mut [u8],
    parents: &mut [u32],
    sequences: &mut [u32],
    counts: &mut [u8],
    flags: &mut [u8],
    tips: &mut [u32],
    tails: &mut [u32],
    missing: &mut [u8],
    requested: &mut [u64],
    arrivals: &mut [u64],
    connected: &mut [u8],
    n: u32,
    m: u32,
    active: BlockSlot,
    line: Option<Line>,
    page: &mut Page<'_>,
) -> Told
    ensures { TellsFront n m (tables_of hashes.old parents.old sequences.old counts.old flags.old
        tips.old tails.old missing.old requested.old arrivals.old connected.old)
        active.0 line page.old
        (tables_of hashes.new parents.new sequences.new counts.new flags.new
        tips.new tails.new missing.new requested.new arrivals.new connected.new) result.active.0 result.renewed
        page.new }
{
    let end = cut(
        hashes, parents, sequences, counts, flags, tips, tails, missing, requested, arrivals,
        connected, n, m,
    );
    answer(
        &mut hashes[..end.hashes],
        &mut parents[..end.parents],
        &mut sequences[..end.sequences],
        &mut counts[..end.counts],
        &mut flags[..end.flags],
        &mut tips[..end.tips],
        &mut tails[..end.tails],
        &mut missing[..end.missing],
        &mut requested[..end.requested],
        &mut arrivals[..end.arrivals],
        &mut connected[..end.connected],
        active,
        line,
        page,
    )
}

// The listing of the first n block slots and the first m head slots, as much of each array as there is.
pub fn list_front(
    parents: &[u32],
    sequences: &[u32],
    counts: &[u8],
    flags: &[u8],
    tips: &[u32],
    tails: &[u32],
    connected: &[u8],
    n: u32,
    m: u32,
    page: &mut Page<'_>,
)
    ensures { page.new ≡ printed page.old
        (listing_of (take n parents.now) (take n sequences.now) (take n counts.now)
        (take n flags.now) (take m tips.now) (take m tails.now)
        (take m connected.now)) }
{
    let blocks = n as usize;
    let heads = m as usize;
    let parent_end = blocks.min(parents.len());
    let sequence_end = blocks.min(sequences.len());
    let count_end = blocks.min(counts.len());
    let flag_end = blocks.min(flags.len());
    let tip_end = heads.min(tips.len());
    let tail_end = heads.min(tails.len());
    let connected_end = heads.min(connected.len());
    listing(
        &parents[0..parent_end],
        &sequences[0..sequence_end],
        &counts[0..count_end],
        &flags[0..flag_end],
        &tips[0..tip_end],
        &tails[0..tail_end],
        &connected[0..connected_end],
        page,
    )
}

// The arrays have one slot more than a table may have, so that it is the call that refuses a larger size.
#[derive(Drop)]
pub struct Arrays {
    pub hashes: [u8; 32800],
    pub parents: [u32; 1025],
    pub sequences: [u32; 1025],
    pub counts: [u8; 1025],
    pub flags: [u8; 1025],
    pub tips: [u32; 65],
    pub tails: [u32; 65],
    pub missing: [u8; 2080],
    pub requested: [u64; 65],
    pub arrivals: [u64; 65],
    pub connected: [u8; 65],
}

impl Arrays {
    // The call of a line on the first n block slots and the first m head slots, as many as there are.
    pub fn answer(
        &mut self,
        n: u32,
        m: u32,
        active: BlockSlot,
        line: Option<Line>,
        page: &mut Page<'_>,
    ) -> Told
        ensures tells { TellsFront n m (tables_in self.old) active.0 line page.old
            (tables_in self.new) result.active.0 result.renewed page.new }
        ensures sized { Sized array_blocks array_heads (tables_in self.old) }
    {
        answer_front(
            &mut self.hashes,
            &mut self.parents,
            &mut self.sequences,
            &mut self.counts,
            &mut self.flags,
            &mut self.tips,
            &mut self.tails,
            &mut self.missing,
            &mut self.requested,
            &mut self.arrivals,
            &mut self.connected,
            n,
            m,
            active,
            line,
            page,
        )
    }

    // The listing of the first n block slots and the first m head slots, as many as there are.
    pub fn list(&self, n: u32, m: u32, page: &mut Page<'_>)
        ensures lists { page.new ≡ printed page.old
            (listing_of (take n self.now.parents) (take n self.now.sequences) (take n self.now.counts)
            (take n self.now.flags) (take m self.now.tips) (take m self.now.tails)
            (take m self.now.connected)) }
        ensures sized { Sized array_blocks array_heads (tables_in self.now) }
    {
        list_front(
            &self.parents,
            &self.sequences,
            &self.counts,
            &self.flags,
            &self.tips,
            &self.tails,
            &self.connected,
            n,
            m,
            page,
        )
    }
}
