// Document 01, "Sound means": what is asked of a job but its order.
ghost use Rattle.std.specs.Prelude.{◌≡◌, false, ℕ, ◌+◌, ◌<◌, get_or};
ghost use Rattle.laws.specs.Range.{all_to};
ghost use Rattle.laws.specs.Chain.{ends_in};
ghost use Rattle.rules.specs.State.{at};
ghost use Rattle.rules.specs.Sound.{implies};
ghost use Rattle.clauses.specs.Clauses.{counts_test, sold_test, child_test, job_test};

use rules::{Jobs, Setup};

fn counts_right(waiting: u16, busy: u16, n: u16, picked: u16, dropped: u16) -> bool
    ensures { result ≡ counts_test waiting busy n picked dropped }
{
    let all = u32::from(waiting) + u32::from(picked) + u32::from(dropped);
    (all == u32::from(n)) & ((1 <= n) & (n <= 256)) & (busy <= picked)
}

fn sold_right(cost: u64, sold: u16, n: u16) -> bool
    ensures { result ≡ sold_test cost sold n }
{
    (sold == 0) | ((cost.saturating_mul(u64::from(sold)) <= u64::from(n)) & (1 <= cost))
}

// Whether a job on transport t may have the parent that the link leads to. A link is as the state's column of parents has it: 0 for none, else the
// job's number plus 1.
fn child_right(
    present: &[bool; 32],
    transport: &[u8; 32],
    picked: &[u16; 32],
    t: u8,
    marked: bool,
    link: u8,
) -> bool
    ensures { result ≡ child_test present.now transport.now picked.now t marked link }
{
    if link == 0 {
        return true;
    }
    let p = usize::from(link - 1);
    p < 32 && present[p] & (transport[p] == t) & (1 <= picked[p]) & marked
}

// Whether following parents ends within 32 steps.
fn chain_ends(parent: &[u8; 32], link: u8) -> bool
    ensures { result ≡ ends_in (at parent.now) 32 link }
{
    let mut k = link;
    for _ in 0..32usize {
        if k == 0 {
            return true;
        }
        k = parent.get(usize::from(k - 1)).copied().unwrap_or(0);
    }
    k == 0
}

// All that is asked of the present jobs but their orders.
pub fn jobs_right(g: Jobs, u: Setup, waiting: [u16; 32], busy: [u16; 32]) -> bool
    requires { (j : ℕ) → j < 32 → at waiting j + at busy j < 65536 }
    ensures { result ≡ all_to (λ j. implies (get_or g.present j false) (job_test g u.settings waiting busy j)) 32 }
{
    for j in 0..32 {
        if !g.present[j] {
            continue;
        }
        let t = g.transport[j];
        let cost = if t < 4 {
            u.settings[t as usize].cost
        } else {
            0
        };
        let right = counts_right(waiting[j], busy[j], g.n[j], g.picked[j], g.dropped[j])
            & sold_right(cost, g.sold[j], g.n[j])
            & (1 <= waiting[j] + busy[j])
            & child_right(
                &g.present,
                &g.transport,
                &g.picked,
                t,
                g.preempted[j],
                g.parent[j],
            )
            & chain_ends(&g.parent, g.parent[j])
            & (g.overtakers[j] <= 65535)
            & (g.turn[j] <= g.places[j]);
        if !right {
            return false;
        }
    }
    true
}
