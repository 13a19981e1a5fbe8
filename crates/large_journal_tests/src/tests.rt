mod contexts;
mod lines;
mod rooms;
