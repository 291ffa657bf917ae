// Tests of the products that go with q, of the tables as solutions, and of tables over two rings.
#![tactic(auto)]

#[cfg(test)]
mod pairs;
#[cfg(test)]
mod solutions;
