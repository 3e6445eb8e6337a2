// Document 01, "Sound means": "its destination order names no destination twice".
ghost use Rattle.std.specs.Prelude.{◌≡◌, false, ℕ, ◌+◌, ◌*◌, ◌≤◌, ◌<◌, get_or};
ghost use Rattle.listing.specs.Listing.{order_list, Marked, OrdersMarked};

// Marks the numbers of one job's order in the table, from 256 times the job's number on. Whether none stands twice.
fn mark_order(order: &[u8; 1024], job: usize, places: usize, table: &mut [bool; 8192]) -> bool
    requires job_bound { (job < 32) × (places ≤ 32) }
    requires by_index { (d : ℕ) → d < 256 → get_or table.old (256 * job + d) false ≡ false }
    ensures { Marked (order_list order.now job places) (256 * job) table.old table.new result }
{
    for k in 0..places {
        let d = usize::from(order[32 * job + k]);
        if table[256 * job + d] {
            return false;
        }
        table[256 * job + d] = true;
    }
    true
}

// Does so for each present job.
pub fn mark_orders(
    present: &[bool; 32],
    places: &[u8; 32],
    order: &[u8; 1024],
    table: &mut [bool; 8192],
) -> bool
    requires by_index { (k : ℕ) → k < 8192 → get_or table.old k false ≡ false }
    ensures { OrdersMarked present.now places.now order.now table.new result }
{
    for j in 0..32 {
        if !present[j] {
            continue;
        }
        let n = usize::from(places[j]);
        if 32 < n {
            return false;
        }
        if !mark_order(order, j, n, table) {
            return false;
        }
    }
    true
}
