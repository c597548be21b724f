#![tactic(auto)]

// The replay bench with the contents of all lists behind each answer, once there is a store.
fn main(rt: HostRuntime) {
    serve::replay_lists(&mut rt.stdin());
}
