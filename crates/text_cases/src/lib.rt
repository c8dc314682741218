// Files, texts and trees, run through the public functions of the libraries. There is nothing but tests here.
#![tactic(auto)]

// The lines and fields of a file.
#[cfg(test)]
mod files;
// Reports of files.
#[cfg(test)]
mod reports;
// Words, advances and measured texts.
#[cfg(test)]
mod texts;
// Trees of joins.
#[cfg(test)]
mod trees;
