// Document 01, "Picking and preemption": the entries that preempted a job are counted through the chain of parents. The walk that
// "Language form for each place" asks for: recursive, from child to parent, the remaining depth of the chain falling.
#![tactic(auto)]

ghost use Rattle.std.specs.Prelude.{◌≡◌, true, suc, ◌+◌, min};
ghost use Rattle.laws.specs.Chain.{along_chain};
ghost use Rattle.rules.specs.State.{at};
ghost use Rattle.rules.specs.Preemption.{added_to, charged};
ghost use Rattle.charging.specs.Links.{leads_inside};

// A sum with m more. "A sum stops at 65,535."
fn added(sum: u32, m: u16) -> u32
    ensures { result ≡ min (sum + m) 65535 }
{
    sum.saturating_add(u32::from(m)).min(65535)
}

// m more at each job of the chain from this link on, at most `depth` of them. A link is as the state's column of parents has it: 0 for none, else the
// job's number plus 1. Soundness gives that the chain of a present job leads to
// present jobs only (`leads_inside_lem` of proofs/).
pub fn charge(parent: &[u8; 32], sums: &mut [u32; 32], link: u8, m: u16, depth: u8)
    requires { leads_inside (at parent.now) depth link ≡ true }
    ensures { sums.new ≡ along_chain (at parent.now) (added_to m) depth link sums.old }
{
    if depth == 0 || link == 0 {
        return;
    }
    let j = usize::from(link - 1);
    sums[j] = added(sums[j], m);
    charge(parent, sums, parent[j], m, depth - 1);
}

// m more at the job y and at each of its ancestors.
pub fn charge_from(parent: &[u8; 32], sums: &mut [u32; 32], y: u8, m: u16)
    requires { leads_inside (at parent.now) 32 (suc y) ≡ true }
    ensures { sums.new ≡ charged (at parent.now) y m sums.old }
{
    charge(parent, sums, y + 1, m, 32);
}
