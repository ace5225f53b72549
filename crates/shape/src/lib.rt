// Whether the buffers fit one another, and n and m are in range.
#![tactic(auto)]

ghost use Rattle.std.specs.Prelude.{◌≡◌, length};
ghost use Rattle.rules.specs.Records.{blocks_fit, heads_fit, viewed};
ghost use Rattle.rules.specs.Calls.{shaped};

use rules::View;

#[tactic(auto, unfolding(rules::specs::Records::blocks_fit))]
fn blocks_fit(view: &View) -> bool
    ensures { result ≡ blocks_fit (viewed view.now).blocks (length view.now.parents.now) }
{
    let n = view.parents.len();
    view.hashes.len() / 32 == n
        && view.hashes.len() % 32 == 0
        && view.sequences.len() == n
        && view.counts.len() == n
        && view.flags.len() == n
}

#[tactic(auto, unfolding(rules::specs::Records::heads_fit))]
fn heads_fit(view: &View) -> bool
    ensures { result ≡ heads_fit (viewed view.now).heads (length view.now.tips.now) }
{
    let m = view.tips.len();
    view.tails.len() == m
        && view.missing.len() / 32 == m
        && view.missing.len() % 32 == 0
        && view.requested.len() == m
        && view.arrivals.len() == m
        && view.connected.len() == m
}

// Whether n, the number of parents, is 1 to 1,024, m, that of tips, is 2 to 64, and the length of every other buffer fits n or m.
#[tactic(auto, unfolding(rules::specs::Calls::shaped))]
pub fn is_shaped(view: &View) -> bool
    ensures { result ≡ shaped (viewed view.now) }
{
    (1..=1024).contains(&view.parents.len())
        && (2..=64).contains(&view.tips.len())
        && blocks_fit(view)
        && heads_fit(view)
}
