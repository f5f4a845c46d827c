// Tests of circuits: the two kinds of value against each other, in all 64 cases, on made-up circuits; and a worked case of reaching.
#![tactic(auto)]

#[cfg(test)]
mod tests;
