// The printed texts of objects (22.1.3). What the reader couldn't read back stands between `#<` and `>`.

mod arrays;
mod characters;
mod numbers;
mod objects;
mod symbols;
