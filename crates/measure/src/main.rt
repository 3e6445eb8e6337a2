// Makes the calls of the scheduler many times, to be timed from outside: docs/PERFORMANCE.md. The argument says which call; with none,
// each is made a few times.
#![tactic(auto)]

ghost use Rattle.std.specs.Prelude.{◌≤◌, length};

mod deaths;
mod lanes;
mod loads;
mod scene;

use std::env::Env;
use std::io;

fn main(rt: HostRuntime) -> io::Result<()> {
    let mut space = [0; 16];
    let n = first_argument(&rt, &mut space);
    if n == 0 {
        show_scene(&rt)?;
        say(&rt, "sound", loads::sound(64))?;
        say(&rt, "pick", loads::pick(16))?;
        say(&rt, "lane", lanes::lane(16))?;
        say(&rt, "crowd", lanes::crowd(16))?;
        say(&rt, "report", loads::report(16))?;
        say(&rt, "death", deaths::death(1))?;
        say(&rt, "turn", loads::turn(216))?;
        say(&rt, "job", loads::job(1))?;
        say(&rt, "ask", loads::ask(32))?;
        return say(&rt, "board", loads::board(1));
    }
    measure(&rt, &space[..n])
}

// Puts the first argument at the front of the buffer, and answers its length; 0 where there is none, or one that is longer than the
// buffer: no argument is an empty one here. `measure` and `reads` share no crate, so each has it.
fn first_argument<E: Env>(rt: &E, space: &mut [u8]) -> usize
    ensures { result ≤ length space.new }
{
    rt.arg(1, space).unwrap_or(0)
}

// 100,000 calls of a name; of any other name none.
fn measure<P: Print>(rt: &P, name: &[u8]) -> io::Result<()> {
    let rounds = 100_000;
    match name {
        b"sound" => say(rt, "sound", loads::sound(rounds)),
        b"pick" => say(rt, "pick", loads::pick(rounds / 4)),
        b"lane" => say(rt, "lane", lanes::lane(rounds / 4)),
        b"crowd" => say(rt, "crowd", lanes::crowd(rounds / 4)),
        b"report" => say(rt, "report", loads::report(rounds / 4)),
        b"death" => say(rt, "death", deaths::death(rounds)),
        b"turn" => say(rt, "turn", loads::turn(rounds)),
        b"job" => say(rt, "job", loads::job(rounds)),
        b"ask" => say(rt, "ask", loads::ask(rounds)),
        b"board" => say(rt, "board", loads::board(rounds)),
        _ => Ok(()),
    }
}

// A word and a number.
fn say<P: Print>(rt: &P, word: &str, n: u32) -> io::Result<()> {
    println!(rt; "{word} {n}")
}

// The board of the scene: windows of 4, of which half are full.
fn show_scene<P: Print>(rt: &P) -> io::Result<()> {
    let mut text = [0; 1024];
    let n = loads::scene_text(&mut text);
    rt.write_all(&text[..n])
}
