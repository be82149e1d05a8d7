//! Tests of calls that no transcript reaches.
#![tactic(auto)]

#[cfg(test)]
mod decoding;
#[cfg(test)]
mod machines;
#[cfg(test)]
mod outside;
#[cfg(test)]
mod reader;
