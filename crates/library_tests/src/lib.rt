// Tests of the library's crates, apart from them so that none is proved twice.
#![tactic(auto)]

#[cfg(test)]
mod bundles;
#[cfg(test)]
mod composed_systems;
#[cfg(test)]
mod duty_monitors;
#[cfg(test)]
mod restrictions;
#[cfg(test)]
mod samples;
#[cfg(test)]
mod sets_and_reach;
#[cfg(test)]
mod stored_tables;
