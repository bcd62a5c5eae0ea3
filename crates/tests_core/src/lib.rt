//! Tests of `vi_driver`, `vi_backend`, `vi_control`, `vi_core`, `vi_sim`, `vi_turns` and `vi_run`,
//! by public calls. Most tests read a script with `script_of`, build a value, and compare what
//! calls answer. Calls stand in helpers whose conditions say what the value has to be; a test has
//! the expected answers. A new file is named here under `#[cfg(test)]`.
#![tactic(auto)]

#[cfg(test)]
mod backend;
#[cfg(test)]
mod control;
#[cfg(test)]
mod driver;
#[cfg(test)]
mod meeting;
#[cfg(test)]
mod scripts;
#[cfg(test)]
mod sim;
#[cfg(test)]
mod turns;
#[cfg(test)]
mod waiting;
#[cfg(test)]
mod world;
