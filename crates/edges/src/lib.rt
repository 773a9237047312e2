// Tests at the edges of what is accepted, each limit met and passed by one, and on figures worked by hand. A crate of its own, since a crate with tests is proved twice.
#![tactic(auto)]

#[cfg(test)]
mod costs;
#[cfg(test)]
mod figures;
#[cfg(test)]
mod makings;
#[cfg(test)]
mod nets_making;
#[cfg(test)]
mod nets_rows;
#[cfg(test)]
mod samples;
