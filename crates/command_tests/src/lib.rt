//! The commands over the forms in memory of what lies outside, with each call of an object failing in turn; these forms; and
//! the adapters over the real outside, each once.
#![tactic(auto)]

#[cfg(test)]
mod calls;
#[cfg(test)]
mod fleets;
#[cfg(test)]
mod forms;
#[cfg(test)]
mod live;
#[cfg(test)]
mod objects;
#[cfg(test)]
mod reads;
#[cfg(test)]
mod requests;
#[cfg(test)]
mod rows;
#[cfg(test)]
mod serving;
#[cfg(test)]
mod stops;
