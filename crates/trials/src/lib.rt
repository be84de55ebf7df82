#![tactic(auto)]

// Examples of boxes over each kind of bank.
#[cfg(test)]
mod boxes;

// What the platform reads of its input.
#[cfg(test)]
mod limits;
