// The content of a profile in memory, with room for all that its quota allows.
mod compact;
mod edit;
mod file;
mod fits;
mod place;
mod pooled;

pub use pooled::PooledContent;

#[cfg(test)]
mod tests;
