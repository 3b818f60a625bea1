// The whole driver as a filter: each line of standard input is a call, each line of standard output its outcome.
#![tactic(auto)]

mod call;
mod lines;

use desk::streams::Streams;
use std::io::Input;

fn main(rt: HostRuntime) {
    let mut streams = Streams {
        output: rt.stdout(),
        error: rt.stderr(),
    };
    lines::answer_input(&mut rt.reader(), &mut streams);
}
