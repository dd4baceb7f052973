// What blocks a corner, and how it is found among the places that are left: by cells, and by boxes.
pub mod blocking;
pub mod box_tree;
pub mod cell_lists;
pub mod cell_search;
pub mod corner;
pub mod crowds;
pub mod ordering;
pub mod refitting;
pub mod searching;
