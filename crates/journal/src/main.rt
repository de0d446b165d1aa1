// The journal program: standard input played from a fresh register, the answers on standard output; or what its arguments ask for
// instead. The input has room for one byte more than the limit, the output for the longest answers.
#![tactic(auto)]

fn main(rt: HostRuntime) {
    if let Some(wish) = terminal::options::asked_for(&rt) {
        terminal::inform(&rt, wish);
        return;
    }
    let mut input = [0u8; 32769];
    let mut out = [0u8; 163840];
    terminal::play(&rt, &mut input, &mut out);
}
