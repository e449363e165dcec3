// Tests of a session over switches only and over congruence over linear: every call taken, and every call refused for each
// cause that it can give. It has no code beside them.
#![tactic(auto)]

#[cfg(test)]
mod calling;
#[cfg(test)]
mod cases;
#[cfg(test)]
mod copies;
#[cfg(test)]
mod pictures;
#[cfg(test)]
mod refusals;
#[cfg(test)]
mod runs;
