mod closing;
mod counts;
mod entries;
mod threads;
