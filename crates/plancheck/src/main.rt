// Reads a plan with claimed answers on standard input and prints, line by line, whether they hold. It sees no engine's working.
#![tactic(auto)]

mod claims;
mod complaint;
mod edits;
mod follow;
mod numbers;
mod outcome;
mod tally;
#[cfg(test)]
mod tests;
mod text;
mod verdict;
mod width;
mod words;

use anyhow::ensure;
use follow::follow;
use outcome::is_blank;
use plans::Plan;
use plantext::Lines;
use std::io;
use std::io::Read;
use tally::Tally;
use words::Said;

// Follows the lines of a text one by one, and prints what each of them comes to.
fn check_lines(rt: &HostRuntime, text: &[u8]) -> io::Result<Tally> {
    let mut plan = Plan::new();
    let mut tally = Tally::new();
    for (place, line) in Lines(text).enumerate() {
        let followed = follow(&mut plan, line);
        tally.count(&followed);
        if !is_blank(&followed) {
            rt.println(Said {
                number: place + 1,
                plan,
                followed,
            })?;
        }
    }
    Ok(tally)
}

fn main(rt: HostRuntime) -> anyhow::Result<()> {
    let mut text = Vec::new(rt.alloc());
    rt.stdin().read_to_end(&mut text)?;
    let tally = check_lines(&rt, text.as_slice())?;
    rt.println(tally)?;
    ensure!(tally.is_clean(), "not all is well");
    Ok(())
}
