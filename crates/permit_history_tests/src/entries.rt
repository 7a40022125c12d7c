//! Lines of histories against those that are written here by hand, and lines that are none.

#[cfg(test)]
mod commands;
#[cfg(test)]
mod deeds;
#[cfg(test)]
mod evidence;
#[cfg(test)]
mod examples;
#[cfg(test)]
mod faults;
#[cfg(test)]
mod lines;
#[cfg(test)]
mod makers;
#[cfg(test)]
mod texts;
