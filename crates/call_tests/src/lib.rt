//! Tests of what no clause says and no run of the program shows, in one crate, since a crate with tests is proved twice: `reading`
//! tests `byte_ends`, `json` tests `decimal_json`, `walking` tests `topojson_decoder` and the walk along arcs that it passes on,
//! `keeping` tests what `json_cursor` keeps and `json_reading` reads again, `reducing` and `weighing` test
//! `effective_area`, `sharing` tests what `junctions` and `arc_table` say of their tables, `simplifying` and `protecting` test `topo_model`,
//! `guarding` tests `guarded_reduction`, `crossing` tests `segment_crossings`, `counting` tests how often the reducer is called that
//! `mapchain_engine` is lent, and `unused` tests calls of `byte_ends`, `decimal_text`, `effective_area`, `linework`, `mapchain_engine`,
//! `topo_model` and `topojson_types`.
#![tactic(auto)]

#[cfg(test)]
mod counting;
#[cfg(test)]
mod crossing;
#[cfg(test)]
mod guarding;
#[cfg(test)]
mod json;
#[cfg(test)]
mod keeping;
#[cfg(test)]
mod protecting;
#[cfg(test)]
mod reading;
#[cfg(test)]
mod reducing;
#[cfg(test)]
mod sharing;
#[cfg(test)]
mod simplifying;
#[cfg(test)]
mod unused;
#[cfg(test)]
mod walking;
#[cfg(test)]
mod weighing;
