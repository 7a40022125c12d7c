//! The scenarios written as texts of histories and replayed: the tables are those of the office that served them.

#[cfg(test)]
mod scenarios;
#[cfg(test)]
mod telling;
