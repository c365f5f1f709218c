//! Rows for evaluations: values, the heap, tables of answers and hosts, each public call once as a
//! caller would make it. It holds tests alone.
#![tactic(auto)]

#[cfg(test)]
mod heap_rows;
#[cfg(test)]
mod host_rows;
#[cfg(test)]
mod store_rows;
