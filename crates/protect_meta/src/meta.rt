use crate::page_map::PageMap;
use cloak_base::Meta;

/// The metadata of each page of each domain that has some.
pub type MetaTable = PageMap<Meta>;
