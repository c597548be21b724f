#![tactic(auto)]

// The replay bench: standard input to its end, each line answered with one.
fn main(rt: HostRuntime) {
    serve::replay(&mut rt.stdin());
}
