mod costs;
mod tables;
