//! Each call of a store through its bound, in plays over any store, played over two. How many
//! frames go and come was worked out by hand: an opened image takes a frame for each page with file
//! bytes, for each span of 512 and of 262,144 pages in which one stands, and its root; a deploy
//! takes one; a first write to a page takes one, and one for each new span of these.

mod captures;
mod opening;
mod pins;
mod plays;
mod spaces;
mod spares;
mod starts;
mod unpins;
