// Document 01, "Windows", last part: what a report does to the entries of its destination, and its refusal.
#![tactic(auto)]

ghost use Rattle.std.specs.Prelude.{◌≡◌};
ghost use Rattle.rules.specs.Answers.{refusal_in};
ghost use Rattle.rules.specs.Reporting.{is_death};
ghost use Rattle.settling.specs.Settling.{CanPutOff, PutOff, entry_refusal};

use rules::{Move, Refusal};

// The destination died in its step.
pub fn is_death(m: Move) -> bool
    ensures { result ≡ is_death m }
{
    m == Move::Dead
}

// The waiting entries of a destination that died are put off: free, in the list with numbers rising, counted as dropped. Their number.
pub fn put_off(
    kind: &mut [u8; 512],
    job: &[u8; 512],
    destination: &[u8; 512],
    dropped: &mut [u16; 32],
    list: &mut [u16],
    dead: Option<u8>,
) -> u16
    requires { CanPutOff kind.old job.now dropped.old list.old }
    ensures { PutOff dead kind.old job.now destination.now dropped.old list.old kind.new dropped.new list.new result }
{
    let Some(d) = dead else {
        return 0;
    };
    let mut m: usize = 0;
    for i in 0..512 {
        if kind[i] == 1 && destination[i] == d {
            dropped[usize::from(job[i])] += 1;
            list[m] = i as u16;
            kind[i] = 0;
            m += 1;
        }
    }
    m as u16
}

// The refusal of a report to a sound state whose clock is good, by the columns that it reads.
pub fn refusal(
    kind: &[u8; 512],
    tickets: &[u32; 512],
    entry: u64,
    ticket: u64,
    places: usize,
) -> Result<(), Refusal>
    ensures { refusal_in result ≡ entry_refusal kind.now tickets.now entry ticket places }
{
    if 512 <= entry {
        return Err(Refusal::Entry); // there is no such entry
    }
    let e = entry as usize;
    if kind[e] != 2 {
        return Err(Refusal::Entry); // it is not busy
    }
    if u64::from(tickets[e]) != ticket {
        return Err(Refusal::Entry); // it is busy with another
    }
    if places < 512 {
        return Err(Refusal::Room);
    }
    Ok(())
}
