//! A folder of the file system as the disk that hosts share.
#![tactic(auto)]

mod dir_calls;
mod done;
mod file_calls;
mod folder;
mod folder_disk;
mod names;

pub use folder_disk::FolderDisk;
