// Runs the rules of names and defaults on concrete texts, and prints what they answer, a line for each.
#![tactic(auto)]

mod defaults;
mod json;
mod packages;
mod rules;
mod say;

fn main(rt: HostRuntime) {
    rules::run(&rt);
    packages::run(&rt);
    json::run(&rt);
    defaults::run(&rt);
}
