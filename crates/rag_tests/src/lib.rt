//! The tests of what no case of `rag_cases` can say: what the gate, the shelf and the sink see, what a pass knows, full tables, texts that fill
//! the pool, the rounds as the slow way to the same replies, trees that attributes make, and public calls that no run of the program reaches.
#![tactic(auto)]

#[cfg(test)]
mod cells;
#[cfg(test)]
mod codes;
#[cfg(test)]
mod counted;
#[cfg(test)]
mod created;
#[cfg(test)]
mod demand;
#[cfg(test)]
mod events;
#[cfg(test)]
mod forms;
#[cfg(test)]
mod kept;
#[cfg(test)]
mod made;
#[cfg(test)]
mod named;
#[cfg(test)]
mod numbers;
#[cfg(test)]
mod ordered;
#[cfg(test)]
mod outside;
#[cfg(test)]
mod programs;
#[cfg(test)]
mod random;
#[cfg(test)]
mod resumed;
#[cfg(test)]
mod rows;
#[cfg(test)]
mod shown;
#[cfg(test)]
mod steps;
#[cfg(test)]
mod sweeps;
#[cfg(test)]
mod texts;
#[cfg(test)]
mod trees;
#[cfg(test)]
mod walks;
