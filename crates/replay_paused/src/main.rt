#![tactic(auto)]

// The replay bench with one line more, of a poll with a limit: `q now limit`.
fn main(rt: HostRuntime) {
    serve::replay_paused(&mut rt.stdin());
}
