// Times sealing and opening, for bench/ciphers.sh: given the number of bytes of a text, it prints that
// number and the nanoseconds a byte that each takes under AES-128. With no argument it does nothing.
//
// Stands on tdb_cbc and carries no promise.
#![tactic(auto)]

use anyhow::Context;
use std::env;
use std::time::{Duration, Instant};
use tdb_aes::Schedule;
use tdb_cbc::{seal, unseal};

// The bytes that are sealed in all.
const TOTAL: usize = 1 << 26;

fn main(rt: HostRuntime) -> anyhow::Result<()> {
    let Some(word) = env::args(&rt)?.nth(1) else {
        return Ok(());
    };
    let size = word
        .as_str()
        .parse::<usize>()
        .ok()
        .context("the size is no number")?;
    if size == 0 || size > TOTAL {
        return Ok(());
    }
    let schedule = Schedule::new128(&[7; 16]);
    let iv = [9; 16];
    let text = vec![in rt.alloc(); 5u8; size]?;
    let sealed = seal(rt.alloc(), &schedule, &iv, &text)?;
    let times = TOTAL / size;
    let start = Instant::now(&rt)?;
    for _ in 0..times {
        let _ = seal(rt.alloc(), &schedule, &iv, &text)?;
    }
    let sealing = start.elapsed(&rt)?;
    let start = Instant::now(&rt)?;
    for _ in 0..times {
        let _ = unseal(rt.alloc(), &schedule, &iv, &sealed)?;
    }
    let opening = start.elapsed(&rt)?;
    let bytes = (times * size) as f64;
    println!(rt;
        "{size} {:.2} {:.2}",
        nanoseconds(sealing) / bytes,
        nanoseconds(opening) / bytes
    )?;
    Ok(())
}

fn nanoseconds(time: Duration) -> f64 {
    time.as_secs_f64() * 1e9
}
