//! Texts, bytes and nodes: programs and values read, printed and copied, chunks and frames, messages in parts and the ends
//! of reliable ports, logs, tables, and services of one's own: what no command of the program shows.
#![tactic(auto)]

#[cfg(test)]
mod calls;
#[cfg(test)]
mod copies;
#[cfg(test)]
mod examples;
#[cfg(test)]
mod frames;
#[cfg(test)]
mod logs;
#[cfg(test)]
mod nestings;
#[cfg(test)]
mod parts;
#[cfg(test)]
mod ports;
#[cfg(test)]
mod printed;
#[cfg(test)]
mod spelled;
#[cfg(test)]
mod steps;
#[cfg(test)]
mod tables;
#[cfg(test)]
mod texts;
#[cfg(test)]
mod tokens;
#[cfg(test)]
mod values;
#[cfg(test)]
mod wire;
